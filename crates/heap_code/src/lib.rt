// The heap functions malloc, calloc, realloc and free in RV32IM words, each with a reentrant form, and the
// first contents of their tables; in specs/ their fragments and words.
#![tactic(auto)]

mod calls;
mod emitting;
mod image;
mod laws;
mod moving;
mod pieces;
mod tables;

pub use image::{HeapImage, WordList, build};
pub use laws::{heap_functions_have_few_words, heap_functions_serve};
