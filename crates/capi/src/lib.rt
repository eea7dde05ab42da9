// The C interface: the inside, list and build calls under C names, on numbers and slices; a slice goes
// over as its pointer and its length. include/brothstitch.h tells a caller what each one does. Each call
// stands in a file of its own, asks one function of the library and tells its answer: 0 for no or for
// done, 1 for yes or built, 100 and the refusal's number; the turn is 0, 1 or 2 (ring_turn). A count, or a refusal's place, goes to value, else 0.
// Calls that differ in the function alone, as the lists, stay apart: each is a C name with its own parameters.
#![tactic(auto)]

mod ask_inside;
mod ask_plain;
mod build_indexes;
mod build_stripes;
mod build_tree;
mod list_scan;
mod list_stripes;
mod list_tree;
mod make_record;
mod outlines;
mod read_wkb;
mod ring_grid;
mod ring_scan;
mod ring_stripes;
mod ring_tree;
mod ring_turn;
mod told;
