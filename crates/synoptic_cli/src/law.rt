//! Laws about the endings of runs.
ghost use Rattle.synoptic_cli.specs.Endings.{EndsAreOne, StatusesAreOne};
ghost use Rattle.synoptic_cli.specs.Migrations.{MigratedAreAlike, MigrationsEnd};
ghost use Rattle.synoptic_cli.specs.Outcomes.{OutcomesAreKnown};
ghost use Rattle.synoptic_cli.specs.Rechecks.{HistoriesAreAccepted, InferredAreAccepted, InferredAreReplayed, ModelsAreAccepted};

use infer_core::{ends_exclude, one_final};
use models::one_model;

/// If files are known, a run ends in only one way: by one answer with one text, or by one stop. So the arguments and the files
/// have only one status.
pub fn runs_end_alike()
    ensures ends { EndsAreOne }
    ensures statuses { StatusesAreOne }
{
    one_model();
    one_final();
    ends_exclude();
}

/// If files are known, and the inputs of a task are read without a refusal, the status of its run is that of its command:
///
/// - `invariants`, `graph` and `migrate` end with `Done`.
/// - `infer`, `paths` and `bench` end with `Done` if the inference exceeds no limit, and otherwise with the limit that it
///   exceeds.
/// - `check` ends with `Done` if the model is valid for the log, and otherwise with the first part that fails.
/// - `replay` ends with `Done` if the model's history is justified by the log, and otherwise with the first step that fails.
pub fn outcomes_are_known()
    ensures { OutcomesAreKnown }
{}

/// If files are known, and one of them is read as the very model of the log that a task reads, `check` of it against that log
/// ends with `yes`.
///
/// The same holds for a file with the text that `infer` answered for that log, with or without `-r`, by the same rules and
/// options (except `-r`). Then the arguments and the files have the status `Done`.
pub fn models_are_accepted()
    ensures models { ModelsAreAccepted }
    ensures inferred { InferredAreAccepted }
{}

/// If files are known, and one of them is read as the very model of the log that a task reads, within the limits, `replay` of
/// it against that log ends with `yes`.
///
/// The same holds for a file with the text that `infer` answered for that log, with or without `-r`, by the same rules and
/// options (except `-r`). Then the arguments and the files have the status `Done`.
pub fn histories_are_accepted()
    ensures models { HistoriesAreAccepted }
    ensures inferred { InferredAreReplayed }
{}

/// If files are known and the named one exists, its migration ends as version 1 reads it: with the text of version 2 of its
/// model, or with its refusal.
///
/// A check of that text against a log ends with `yes` exactly if the model that was read is valid for that log, for three kinds
/// of invariants.
pub fn migrations_keep_models()
    ensures ends { MigrationsEnd }
    ensures alike { MigratedAreAlike }
{}
