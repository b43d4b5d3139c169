// The laws of a pass, whatever its words: each draw is a piece of the clone's region, and with a map no block is drawn twice.
// Nothing here is run.
#![tactic(auto)]
