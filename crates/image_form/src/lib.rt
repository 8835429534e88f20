// What an image is, and what follows from that. No code: blocks are written and read in `words`, `blocks`, `save` and `load`.
#![tactic(auto)]
