//! Tests of what schemas are read by: values compared, drafts, vocabularies, retrievers, keywords read and asked, and what is told of faults.
#![tactic(auto)]

#[cfg(test)]
mod applicator_rows;
#[cfg(test)]
mod applying;
#[cfg(test)]
mod asking;
#[cfg(test)]
mod asserted;
#[cfg(test)]
mod asserted_rows;
#[cfg(test)]
mod described;
#[cfg(test)]
mod drafts;
#[cfg(test)]
mod faults;
#[cfg(test)]
mod keywords;
#[cfg(test)]
mod locations;
#[cfg(test)]
mod makers;
#[cfg(test)]
mod objects;
#[cfg(test)]
mod orders;
#[cfg(test)]
mod read;
#[cfg(test)]
mod reading;
#[cfg(test)]
mod reports;
#[cfg(test)]
mod retrievers;
#[cfg(test)]
mod rows;
#[cfg(test)]
mod sameness;
#[cfg(test)]
mod sentences;
#[cfg(test)]
mod tables;
#[cfg(test)]
mod values;
#[cfg(test)]
mod vocabularies;
