//! Tests of documents prepared, of references looked up in them, of schema places, registries, graphs of what is reached, and nodes that lead to marked ones.
#![tactic(auto)]

#[cfg(test)]
mod adding;
#[cfg(test)]
mod asking;
#[cfg(test)]
mod chains;
#[cfg(test)]
mod graphs;
#[cfg(test)]
mod indexes;
#[cfg(test)]
mod layered;
#[cfg(test)]
mod layers;
#[cfg(test)]
mod lookups;
#[cfg(test)]
mod marks;
#[cfg(test)]
mod places;
#[cfg(test)]
mod refusals;
#[cfg(test)]
mod registries;
#[cfg(test)]
mod retrieving;
#[cfg(test)]
mod rows;
#[cfg(test)]
mod scripts;
#[cfg(test)]
mod shapes;
#[cfg(test)]
mod stages;
#[cfg(test)]
mod walks;
