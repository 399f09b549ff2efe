//! Programs, states and scripts as plain data: what the elaborated contract is, what a run changes, and what
//! outsiders do with it. `formed` tests whether a program's parts fit together, and `check_script` whether a script fits a
//! program, each equal to its definition; the meaning of these types stands in `sol_meaning`.
#![tactic(auto)]

mod copies;
mod doors;
mod forming;
mod kinds;
mod options;
mod program;
mod script;
mod script_faults;
mod state;
mod statements;
mod types_of;
mod values;
mod wrapping;

pub use doors::{door, params_of};
pub use forming::formed;
pub use kinds::kind_word;
pub use options::{Kinds, Options};
pub use program::{
    Build, BuildArg, Cmp, Expr, Fun, Kind, MapTy, OutFun, PanicSites, Place, Program, Site, Stmt,
};
pub use script::{Answer, Call, Reply, Script};
pub use script_faults::{ScriptFault, check_script, fitting_law, params_law};
pub use state::{MapVal, State};
pub use wrapping::wrapped;
