ghost use Rattle.std.specs.Prelude.{◌≡◌, IfOk};
ghost use Rattle.clap.specs.Simple.{app_of};
ghost use Rattle.script_program.specs.CommandLine.{command_line};

use clap::{Arg, ArgAction, Command};
use std::alloc::{AllocError, Global};

/// The command that reads the words behind the program's name.
pub(crate) fn command_line<'a>(alloc: Global) -> Result<Command<'a>, AllocError>
    ensures { IfOk result (λ c. app_of c ≡ command_line) }
{
    Command::new(alloc, "partscript")
        .no_binary_name(true)
        .disable_help_flag(true)
        .disable_version_flag(true)
        .arg(Arg::new(alloc, "mode").long("mode"))?
        .arg(Arg::new(alloc, "today").long("today"))?
        .arg(
            Arg::new(alloc, "trail")
                .long("trail")
                .action(ArgAction::SetTrue),
        )?
        .arg(Arg::new(alloc, "seed").long("seed"))
}
