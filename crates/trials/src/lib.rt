// Tests of the nets and of the line books; there is no other code here.
#![tactic(auto)]

#[cfg(test)]
mod book_cuts;
#[cfg(test)]
mod book_limits;
#[cfg(test)]
mod book_refusals;
#[cfg(test)]
mod checks;
#[cfg(test)]
mod edits;
#[cfg(test)]
mod lattice_nets;
#[cfg(test)]
mod list_nets;
#[cfg(test)]
mod longest_book;
#[cfg(test)]
mod numbers;
#[cfg(test)]
mod patched_nets;
#[cfg(test)]
mod random_inputs;
#[cfg(test)]
mod readers;
#[cfg(test)]
mod round_trips;
#[cfg(test)]
mod sample_books;
#[cfg(test)]
mod samples;
