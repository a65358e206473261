// All calls for C: each hands its input to the call below it and shows the answer. The header for C is include/yaxopetzo.h. No call asks
// anything of its caller but that a pointer and its length are those of a buffer, and that what is written overlaps nothing else. Enums and
// references do not go across: an answer's numbers are shown in their place, and a payload's place in the lent area.
#![tactic(auto)]

mod blocks;
mod crosses;
mod frames;
mod hearing;
mod lines;
mod masts;
mod records;
mod replaying;
mod words;
