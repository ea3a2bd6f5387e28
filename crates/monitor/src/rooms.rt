// How much room the outcomes of commands need.
ghost use Rattle.std.specs.Prelude.{◌≡◌, ◌^◌, ◌-◌, min};
ghost use Rattle.monitor.specs.Monitors.{bytes_in, dumps_in};

use monitor_script::Command;

/// How many outcomes the commands have.
pub(crate) fn dumps_in(commands: &[Command]) -> usize
    ensures { result ≡ dumps_in commands.now }
{
    let mut dumps = 0;
    for command in commands {
        if matches!(command, Command::Dump { .. }) {
            dumps += 1;
        }
    }
    dumps
}

/// How many bytes they keep, or `usize::MAX` where they are more.
pub(crate) fn bytes_in(commands: &[Command]) -> usize
    ensures { result ≡ min (bytes_in commands.now) (2 ^ 64 - 1) }
{
    let mut bytes: usize = 0;
    for command in commands {
        if let Command::Dump { len, .. } = command {
            bytes = bytes.saturating_add(usize::from(*len));
        }
    }
    bytes
}
