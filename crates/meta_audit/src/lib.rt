//! The auditor of tables that others made: whether they mean what is declared.
//!
//! `audit` compares tables with declarations. If its verdict is `Yes`, the tables, read by the decoding, allow exactly what the
//! declarations accept, and a name finds in them what it finds in the declarations. The tables needn't be those that `generate` makes:
//! further type sets, another order of constraints or another form of a constraint mean the same. `audit_run` does the same for the text of
//! tables.
#![tactic(auto)]

mod answering;
mod auditing;
mod controls;
mod forms;
mod groups;
mod laws;
mod opcodes;
mod places;
mod running;
mod verdict;

pub use answering::Auditor;
pub use auditing::audit;
pub use laws::{
    meant_tables_mean_the_declarations, one_audit_line, one_verdict,
    tables_of_declarations_are_meant,
};
pub use meta_run::Ending as AuditStatus;
pub use running::audit_run;
pub use verdict::Verdict;
