//! Tables of RFC 3986, RFC 4291 and RFC 6901 as tests.
#![tactic(auto)]

#[cfg(test)]
mod addresses;
#[cfg(test)]
mod fragments;
#[cfg(test)]
mod grammar;
#[cfg(test)]
mod pointers;
#[cfg(test)]
mod references;
#[cfg(test)]
mod resolution;
#[cfg(test)]
mod steps;
