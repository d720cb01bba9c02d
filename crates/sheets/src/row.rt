// A row of a sheet, for one station. In the field's words a sheet is a shortest-path tree as a table, and a row is the
// distance of a node and its predecessor edge.
#[derive(Clone, Copy, Debug, PartialEq, Eq)]
pub struct Row<C> {
    // The least cost from the gateway, or none.
    pub cost: C,
    // The number of the line by which the station is reached.
    pub via: Option<usize>,
}
