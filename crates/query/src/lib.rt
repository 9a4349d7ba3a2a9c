// Filters: whether an event matches one, and the answer of a REQ. The definitions stand in specs/.
#![tactic(auto)]
