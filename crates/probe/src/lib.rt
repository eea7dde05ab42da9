// For the comparison runs: the library's functions under C names, on numbers and slices. Each calls
// one function and hands its answer on, under the same promise. A call that can refuse answers 0 or
// the refusal's number; what comes with the answer, or the refusal's place, goes through references.
#![tactic(auto)]

mod answer;
mod casts;
mod grids;
mod numbers;
mod rects;
mod scans;
mod stripes;
mod varints;
