// The state tables of both parties, each cell obtained by running the engine.
mod cell;
mod coordinators;
mod stores;

use crate::refusal::Refusal;
use cell::CSV_HEAD;

// How the tables are printed.
#[derive(Clone, Copy, PartialEq, Eq)]
pub(crate) enum Form {
    Markdown,
    Csv,
}

// Prints both tables.
pub(crate) fn print_tables(rt: &HostRuntime, form: Form) -> Result<(), Refusal<'static>> {
    match form {
        Form::Markdown => {}
        Form::Csv => println!(rt; "{CSV_HEAD}")?,
    }
    stores::print_table(rt, form)?;
    match form {
        Form::Markdown => println!(rt; "")?,
        Form::Csv => {}
    }
    coordinators::print_table(rt, form)?;
    Ok(())
}
