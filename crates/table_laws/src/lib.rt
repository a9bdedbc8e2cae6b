//! Laws about the owners of record types: the declaration whose type a record is, directly or through arrays and pointers.
//! Depends on `table_rules` for the table entries of a module, and on `module_table` and `ob_tree` for their types.
//! Main law: no declaration owns two records. The type of the owner of a record ends with that record.
#![tactic(auto)]

pub mod laws;
