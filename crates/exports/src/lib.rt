// The colour stage for programs in C and Rust: each public call as a C function `purdolve_NAME`, in a static library. Nothing is
// worked out here: a function hands its arguments to the call of its name, and has that call's contract.
//
// A slice is a pointer and then a length; a struct goes by value and has C's layout. A `Result` becomes a struct of document 01's
// number, 0 where the call is accepted, and the values, which are zeros where there are none.
#![tactic(auto)]

mod cardfile; // cardfile.rt: a whole card file
mod colour; // colour.rt: colours and the palette
mod drawing; // drawing.rt: bits and hues, drawing and reading
mod floats; // floats.rt: floats
mod floor; // floor.rt: linear systems, order statistics
mod nearby; // nearby.rt: the references near a module
mod recorded; // recorded.rt: the model and the noise record, from references as records
mod replies; // replies.rt: the structs that stand for a `Result`
mod season; // season.rt: totals over a season's cards
mod stage; // stage.rt: the model, the noise record, scores
