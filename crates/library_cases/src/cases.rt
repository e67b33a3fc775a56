// Cases, by what they are of, and how arguments and results are written in them.
mod answers;
mod arguments;
mod base;
mod strings;
mod utf8;
