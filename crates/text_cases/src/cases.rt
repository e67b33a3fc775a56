// Cases, by what they are of.
mod characters;
mod formats;
mod integers;
mod matches;
mod texts;
