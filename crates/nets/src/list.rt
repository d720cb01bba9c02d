ghost use Rattle.std.specs.Prelude.{◌≡◌, min, length};
ghost use Rattle.nets.specs.Model.{max_lines, Sound};
ghost use Rattle.nets.specs.Only.{OnlyRecord};
ghost use Rattle.nets.specs.Listed.{listed, as_given, net_fits, judged};
ghost use Rattle.nets.specs.ListedSound.{sound_listed};

use crate::judging::{judge_open, judge_price};
use crate::limits::{MAX_LINES, MAX_STATIONS};
use crate::line::Line;
use crate::net::{EditableNet, Net};
use crate::refusal::Refusal;

// A count of stations and a table of records, which is lent for writing. A count beyond the limits reads as the nearest
// within them, a record beyond the limits of a line as a shut line from station 0 to station 0 at no fee and no loss, and
// records past the most that a net may have are not read. An edit writes the record of its line, within the limits.
#[derive(Drop)]
pub struct ListNet<'a> {
    count: usize,
    records: &'a mut [Line],
}

impl<'a> ListNet<'a> {
    // Judges before the making: accepts exactly the stations and records that are a net within the limits as given.
    pub fn judge(stations: usize, records: &[Line]) -> Result<(), Refusal>
        ensures answer { result ≡ judged stations records.now }
        ensures sound { result ≡ Ok tt → Sound (as_given stations records.now) }
        ensures complete { Sound (as_given stations records.now) → result ≡ Ok tt }
        ensures meaning { result ≡ Ok tt → listed stations records.now ≡ as_given stations records.now }
    {
        if net_fits(stations, records) {
            Ok(())
        } else {
            Err(Refusal::NetLimit)
        }
    }

    // Takes any stations and records, and reads them as said above.
    pub fn new(stations: usize, records: &'a mut [Line]) -> ListNet<'a>
        ensures count { result.count ≡ stations }
        ensures records { result.records.now ≡ records.old }
        ensures lender { result.records.ghost_name ≡ records.entry.ghost_name }
        ensures meaning { listed result.count result.records.now ≡ listed stations records.old }
    {
        ListNet {
            count: stations,
            records,
        }
    }
}

// Whether the stations and the records as given are within the limits of a net.
fn net_fits(stations: usize, records: &[Line]) -> bool
    ensures { result ≡ net_fits stations records.now }
{
    (1..=MAX_STATIONS).contains(&stations)
        && records.len() <= MAX_LINES
        && records.iter().all(|record| record.fits(stations))
}

// How many of the records a net reads.
fn read_count(records: &[Line]) -> usize
    ensures { result ≡ min (length records.now) max_lines }
{
    records.len().min(MAX_LINES)
}

impl<'a> Net for ListNet<'a> {
    ghost meant = { λ n. listed n.count n.records.now };

    ghost sound = { λ n. sound_listed n.count n.records.now };

    fn stations(&self) -> usize {
        self.count.clamp(1, MAX_STATIONS)
    }

    fn line_count(&self) -> usize {
        read_count(self.records)
    }

    fn line(&self, k: usize) -> Option<Line> {
        let record = self.records[..self.line_count()].get(k)?;
        Some(record.read(self.stations()))
    }
}

impl<'a> EditableNet for ListNet<'a> {
    ghost only = { OnlyRecord };

    fn set_price(&mut self, k: usize, fee: u32, loss: u32) -> Result<(), Refusal> {
        judge_price(self, k, fee, loss)?;
        let stations = self.stations();
        let record = &mut self.records[k];
        *record = record.read(stations).with_price(fee, loss);
        Ok(())
    }

    fn set_open(&mut self, k: usize, open: bool) -> Result<(), Refusal> {
        judge_open(self, k)?;
        let stations = self.stations();
        let record = &mut self.records[k];
        *record = record.read(stations).with_open(open);
        Ok(())
    }
}
