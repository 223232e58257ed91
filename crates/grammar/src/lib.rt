// The grammar of a text that has a first line and then items of six lines each, whatever an item is: definitions and laws,
// no code. A trace of records is one such text, a wait of events another.
#![tactic(auto)]
