//! The law on builds, as a contract.

ghost use Rattle.gg_cli.specs.BuildsAgree.{BuildAgrees};

/// Inferring a script to its end and forcing all placeholders that it leaves gives the files that the script leaves where it is built
/// at once to its end.
pub fn build_agrees()
    ensures { BuildAgrees }
{}
