//! What the image of a world is: the objects that its roots reach, in the order in which they are first met, each with its fields; and the world
//! that an image is loaded into. Definitions alone, with worlds whose images are computed.
#![tactic(auto)]
