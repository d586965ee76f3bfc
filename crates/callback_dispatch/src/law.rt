//! What the rule of a queue comes to.
ghost use Rattle.std.specs.Prelude.{List};
ghost use Rattle.callback_dispatch.specs.declared.numbered.Numbered.{Numbered as Element};
ghost use Rattle.callback_dispatch.specs.declared.rule.View.{View as ViewOf};
ghost use Rattle.callback_dispatch.specs.Rule.{Dispatch};
ghost use Rattle.callback_dispatch.specs.Law.{IsShared};

/// Whatever threads have fed and taken: the queue holds the callbacks that its feeder fed and that have not left it, in
/// order. Each that left it stands in the list of one taker alone, and there once, and no list has another element.
pub fn law_of_sharing()
    ensures { (items : List Element) (views : List ViewOf) →
        Dispatch items views → IsShared items views }
{}
