ghost use Rattle.std.specs.Prelude.{◌≡◌};
ghost use Rattle.sr_compiled.specs.Agreement.{AsksTheSame, AsksTheSame-prop};

use sr_code::Program;

/// A program that was compiled: the code of each process asks what the core says.
#[derive(Drop)]
pub struct Compiled {
    program: Program,
    pub ghost agrees: { AsksTheSame program.core program.code } by { AsksTheSame-prop program.core program.code },
}

impl Compiled {
    pub fn new(program: Program) -> Compiled
        requires { AsksTheSame program.core program.code }
        ensures { result.program ≡ program }
    {
        Compiled { program }
    }

    pub fn program(&self) -> &Program
        ensures { result.now ≡ self.now.program }
    {
        &self.program
    }
}
