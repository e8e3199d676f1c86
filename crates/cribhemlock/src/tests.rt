//! Tests of runs: devices, lines cut and answered, words, files, and whole programs over bytes in memory.

mod checks;
mod cuts;
mod descriptions;
mod devices;
mod files;
mod forms;
mod instances;
mod lines;
mod outputs;
mod texts;
mod warnings;
mod watched;
mod whole;
mod words;
