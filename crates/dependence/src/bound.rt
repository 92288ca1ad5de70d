//! The place of a loop's bound.

ghost use Rattle.std.specs.Prelude.{◌≡◌, ◌<◌};
ghost use Rattle.loop_form.specs.View.{program};
ghost use Rattle.dependence.specs.Apart as apart;

use kernel_tree::Checked;
use kernel_tree::laws::few_params;
use loop_form::param_place;

/// The place of the loop's bound among the parameters; without a loop 0.
#[tactic(auto, unfolding(loop_form::specs::View::program))]
pub fn bound_place(kernel: &Checked) -> u32
    ensures place { result ≡ apart.bound_place (program kernel.now) }
    ensures within { result < 8 }
{
    few_params(kernel);
    match &kernel.kernel().body {
        None => 0,
        Some(body) => param_place(&kernel.kernel().params, body.bound.text()).unwrap_or(0),
    }
}
