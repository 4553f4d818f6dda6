//! The file that is written.

ghost use Rattle.ncgen.specs.code.Prepared.{file_of_prepared, IsReady};
ghost use Rattle.ncgen.specs.code.RunSteps.{WritesAt};

use crate::failure::OutputFault;
use crate::prepared::Prepared;
use devices::Creator;

/// Creates an output at the path, or empties what is there. Writes the file `prepared` to the output, and then closes the output, also if
/// writing failed. Needs a `prepared` such as `prepare` returns. Errs with `CannotOpen` if the output can't be created; then nothing was
/// touched. Errs with `WriteFailed` if writing or closing the output failed; then the path was given a prefix of the file, which may be
/// empty.
#[tactic(auto, unfolding(devices::specs::Sinks::append, devices::specs::Sinks::is_transparent))]
pub fn write_output<C: Creator>(
    creator: &mut C,
    path: &str,
    prepared: &Prepared,
) -> Result<(), OutputFault>
    requires { IsReady prepared.now }
    ensures { WritesAt
        (record { is_transparent = C.is_transparent; before = C.view creator.old; after = C.view creator.new })
        path.now
        (file_of_prepared prepared.now)
        result }
{
    let mut output = creator.create(path)?;
    let written = prepared.write(&mut output);
    let closed = creator.close(path, output);
    written?;
    closed?;
    Ok(())
}
