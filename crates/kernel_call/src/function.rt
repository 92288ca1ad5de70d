//! A kernel as the words of a function.

ghost use Rattle.promises.specs.Function.{CloseFunction, FunctionEnds};
ghost use Rattle.kernel_tree.specs.Items.{size_of};
ghost use Rattle.loop_form.specs.View.{program};
ghost use Rattle.promises.specs.Refusals.{IsRefusal, too_many};
ghost use Rattle.std.specs.Prelude.{◌≡◌, ◌+◌, ◌*◌, ◌≤◌, None, IfErr, IfOk, OnOk, length};

use crate::laws::functions;
use call_words::function_words;
use kernel_compile::{Code, compile_kernel};
use kernel_tree::Checked;
use loop_form::laws::few_items;
use promises::CompileFault;
use std::alloc::Global;

/// The words of a function that does what a kernel says, wherever they stand and whatever the state in which they are called.
pub fn kernel_function(alloc: Global, kernel: &Checked) -> Result<Code, CompileFault>
    ensures close { IfOk result (λ code. CloseFunction (program kernel.now) code.words.items) }
    ensures ends { IfOk result (λ code. FunctionEnds (program kernel.now) code.words.items) }
    ensures short { IfOk result (λ code. length code.words.items ≤ 1056 + 60 * size_of (program kernel.now)) }
    ensures enough { OnOk result (too_many (program kernel.now) ≡ None) }
    ensures refusal { IfErr result (IsRefusal (program kernel.now)) }
{
    functions();
    few_items(kernel);
    let code = compile_kernel(alloc, kernel)?;
    let words = function_words(alloc, &code.words)?;
    Ok(Code { words })
}
