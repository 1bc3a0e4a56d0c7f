//! What holds of reports. The clause of the function is a law, and its body does nothing.
ghost use Rattle.std.specs.Prelude.{◌≡◌, ℕ, List};
ghost use Rattle.sve_text.specs.Files.{FilesValue};
ghost use Rattle.sve_command.specs.declared.commands.Command.{Command};
ghost use Rattle.sve_serve.specs.Serial.{IsReportInTurn, HaveOneAnswer};

/// Clients that run one after another have one report where all that they ask is files, expansions and tops.
pub fn clients_in_turn_have_one_report()
    ensures { (given : ℕ) (files : FilesValue) (clients : List (List Command)) → HaveOneAnswer clients → (text other : List ℕ) → IsReportInTurn given files clients text → IsReportInTurn given files clients other → text ≡ other }
{}
