// Cases, by what they are of.
mod expressions;
mod parts;
mod reading;
mod statements;
mod whole;
