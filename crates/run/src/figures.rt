ghost use Rattle.std.specs.Prelude.{◌≡◌, length};
ghost use Rattle.run.specs.Figures.{figures, AllCome};

// How many figures worked by hand the definitions of the run are proved to give.
pub fn figure_count() -> usize
    ensures count { result ≡ length figures }
    ensures all_come { AllCome figures }
{
    19
}
