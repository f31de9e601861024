//! Tests over the public items of the libraries, as an outside user calls them: what only code can test. All other rows
//! are data of `cudf_rows`. Expected values come from the format's own rules, never from what the
//! program printed.
#![tactic(auto)]

#[cfg(test)]
mod chain;
#[cfg(test)]
mod details;
#[cfg(test)]
mod devices;
#[cfg(test)]
mod documents;
#[cfg(test)]
mod explanations;
#[cfg(test)]
mod fronts;
#[cfg(test)]
mod keys;
#[cfg(test)]
mod large;
#[cfg(test)]
mod memory;
#[cfg(test)]
mod rankings;
#[cfg(test)]
mod reports;
#[cfg(test)]
mod runs;
#[cfg(test)]
mod statuses;
#[cfg(test)]
mod table;
#[cfg(test)]
mod values;
