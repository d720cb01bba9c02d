// Tests of the cost kinds, the bandings and the check of a sheet; there is no other code here.
#![tactic(auto)]

#[cfg(test)]
mod bandings;
#[cfg(test)]
mod bellman_ford;
#[cfg(test)]
mod chains;
#[cfg(test)]
mod check_refusals;
#[cfg(test)]
mod cost_kinds;
#[cfg(test)]
mod false_sheets;
#[cfg(test)]
mod random_nets;
#[cfg(test)]
mod random_sheets;
#[cfg(test)]
mod right_sheets;
#[cfg(test)]
mod samples;
