ghost use Rattle.std.specs.Prelude.{◌≡◌, ◌<◌, length, IfOk, MatchResult};
ghost use Rattle.sheets.specs.Graph.{edge_of};
ghost use Rattle.sheets.specs.Verdict.{request as request_of, relaxed, tight_into, lines_hold, before, leads_back, fits, station_holds, stations_hold, verdict};
ghost use Rattle.sheets.specs.Tables.{read_row};
ghost use Rattle.sheets.specs.Check.{admitted};
ghost use Rattle.nets.specs.Model.{LineLimits};

use crate::comparing::{is_none, same_cost};
use crate::row::Row;
use costs::{CostKind, line_cost};
use nets::{Line, Net, Refusal};
use std::iter::successors;

// What a call on a sheet was admitted with: a net, a gateway that is one of its stations, and a table with one row for each. A method
// that reads a row or takes a line requires that it is one of the net, which each call is proved to give: a lookup for any number would
// test the number at each line and row.
#[derive(Drop)]
pub(crate) struct Admitted<'a, N: Net, K: CostKind> {
    net: &'a N,
    gateway: usize,
    rows: &'a [Row<K::Cost>],
    ghost station: { gateway < (N.Net.meant net.now).stations },
    ghost size: { length rows.now ≡ (N.Net.meant net.now).stations },
}

impl<'a, N: Net, K: CostKind> Admitted<'a, N, K> {
    ghost use Rattle.sheets.specs.Given.{given_graph, given_sheet};

    // Refuses a gateway that is not a station, then a table that has not one row for each station.
    pub(crate) fn admit(
        net: &'a N,
        gateway: usize,
        rows: &'a [Row<K::Cost>],
    ) -> Result<Self, Refusal>
        ensures answer { let answer = admitted (N.Net.meant net.now) gateway (length rows.now) in MatchResult result (λ _. answer ≡ Ok tt) (λ e. answer ≡ Err e) }
        ensures net { IfOk result (λ a. a.net.now ≡ net.now) }
        ensures gateway { IfOk result (λ a. a.gateway ≡ gateway) }
        ensures rows { IfOk result (λ a. a.rows.now ≡ rows.now) }
    {
        if gateway >= net.stations() {
            return Err(Refusal::NoSuchGateway);
        }
        if rows.len() != net.stations() {
            return Err(Refusal::TableLength);
        }
        Ok(Admitted { net, gateway, rows })
    }

    // The row of station v.
    fn row(&self, v: usize) -> Row<K::Cost>
        requires { v < length self.now.rows.now }
        ensures { read_row K.CostKind.value result ≡ given_sheet self.now v }
    {
        self.rows[v]
    }

    // The request of a line: the cost of its from station joined with its own.
    fn request(&self, line: Line) -> K::Cost
        requires { LineLimits (N.Net.meant self.now.net.now).stations line }
        ensures { K.CostKind.value result ≡ request_of K.CostKind.ops (given_sheet self.now) (edge_of K.CostKind.ops line) }
    {
        K::join(self.row(line.from as usize).cost, line_cost::<K>(line))
    }

    // Whether a line is relaxed: its request is not below the cost of its to station.
    fn is_relaxed(&self, line: Line) -> bool
        requires { LineLimits (N.Net.meant self.now.net.now).stations line }
        ensures { result ≡ relaxed K.CostKind.ops (given_sheet self.now) (edge_of K.CostKind.ops line) }
    {
        K::at_most(self.row(line.to as usize).cost, self.request(line))
    }

    // Whether line k is relaxed.
    fn line_relaxed(&self, k: usize) -> bool
        requires { k < length (N.Net.meant self.now.net.now).lines }
        ensures { result ≡ relaxed K.CostKind.ops (given_sheet self.now) ((given_graph self.now).line k) }
    {
        let is_relaxed = |line| self.is_relaxed(line);
        self.net.line(k).is_none_or(is_relaxed)
    }

    // Whether every line is relaxed. It is a loop: `all` over the lines took 1.6 times the instructions, and `all` over their numbers 1.2
    // times the instructions and 1.6 to 1.9 times the time.
    fn lines_relaxed(&self) -> bool
        ensures { result ≡ lines_hold K.CostKind.ops (given_graph self.now) (given_sheet self.now) }
    {
        for k in 0..self.net.line_count() {
            if !self.line_relaxed(k) {
                return false;
            }
        }
        true
    }

    // Whether a line leads into station v, and its request is the cost of v.
    fn is_tight_into(&self, v: usize, line: Line) -> bool
        requires station { v < length self.now.rows.now }
        requires line { LineLimits (N.Net.meant self.now.net.now).stations line }
        ensures { result ≡ tight_into K.CostKind.ops (given_sheet self.now) v (edge_of K.CostKind.ops line) }
    {
        // Both tests are made: a branch between them costs more.
        (line.to as usize == v) & same_cost::<K>(self.request(line), self.row(v).cost)
    }

    // Whether there is a line k, it leads into station v, and its request is the cost of v.
    fn via_fits(&self, v: usize, k: usize) -> bool
        requires { v < length self.now.rows.now }
        ensures { result ≡ fits K.CostKind.ops (given_graph self.now) (given_sheet self.now) v k }
    {
        // A closure written inside the call tells a proof nothing of its answer.
        let is_tight = |line| self.is_tight_into(v, line);
        self.net.line(k).is_some_and(is_tight)
    }

    // The station from which the via of station v comes, if it has one that is a line. It takes any number, as `leads_back` does, whose
    // closure so needs no proof that the numbers are stations.
    fn previous(&self, v: usize) -> Option<usize>
        ensures { result ≡ before (given_graph self.now) (given_sheet self.now v).via }
    {
        let via = self.rows.get(v)?.via?;
        let line = self.net.line(via)?;
        Some(line.from as usize)
    }

    // Whether the gateway is among the first stations that are met from v on, following vias back: as many as there are rows.
    fn leads_back(&self, v: usize) -> bool
        ensures { result ≡ leads_back (given_graph self.now) (given_sheet self.now) self.now.gateway (length self.now.rows.now) v }
    {
        // The way ends at the gateway: `successors` asks for the next station before it hands one out.
        let back = |u: &usize| {
            if *u == self.gateway {
                None
            } else {
                self.previous(*u)
            }
        };
        successors(Some(v), back)
            .take(self.rows.len())
            .any(|u| u == self.gateway)
    }

    // Whether the row of station v holds. Without a via the gateway costs start, and every other station none. With one, v is not the
    // gateway, it has a cost, the via fits, and it leads back to the gateway.
    fn station_holds(&self, v: usize) -> bool
        requires { v < length self.now.rows.now }
        ensures { result ≡ station_holds K.CostKind.ops (given_graph self.now) self.now.gateway (given_sheet self.now) v }
    {
        let row = self.row(v);
        match row.via {
            None if v == self.gateway => same_cost::<K>(row.cost, K::start()),
            None => is_none::<K>(row.cost),
            Some(k) => {
                v != self.gateway
                    && !is_none::<K>(row.cost)
                    && self.via_fits(v, k)
                    && self.leads_back(v)
            }
        }
    }

    // Whether every station's row holds.
    #[tactic(auto, unfolding(crate::specs::Verdict::all_below))]
    fn stations_hold(&self) -> bool
        ensures { result ≡ stations_hold K.CostKind.ops (given_graph self.now) self.now.gateway (given_sheet self.now) }
    {
        (0..self.rows.len()).all(|v| self.station_holds(v))
    }

    // Whether every line is relaxed and every station's row holds.
    pub(crate) fn holds(&self) -> bool
        ensures { result ≡ verdict K.CostKind.ops (given_graph self.now) self.now.gateway (given_sheet self.now) }
    {
        self.lines_relaxed() && self.stations_hold()
    }
}
