// What save and load promise. Save answers the length of the image; load answers as clear does, with the header beside it. No code: the calls are the
// crates save and load.
#![tactic(auto)]
