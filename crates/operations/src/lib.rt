// Which task each operation has, in a table that does what the operations do (manual 4.2).
#![tactic(auto)]

pub mod table;
