// No code: a check's verdict by the set that the gates build (specs/Image.antt).
#![tactic(auto)]
