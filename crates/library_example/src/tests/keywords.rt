// Keywords by validators: what they refuse in a build, what they tell of values, and which paths the check takes for a fault's.
mod asserting;
mod branching;
mod carrying;
mod certificates;
mod choosing;
mod counting;
mod depending;
mod details;
mod examples;
mod naming;
mod others;
mod patterns;
mod refusals;
mod subject;
