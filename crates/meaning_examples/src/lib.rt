//! Scripts over the whole libraries, computed to what the Lua 5.4 manual and stock Lua give.
#![tactic(auto)]
