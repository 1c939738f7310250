// A history: the public calls one after the other, and the one walk over every way in which a step may end. The crate has no code; its definitions and laws stand in specs/.
#![tactic(auto)]
