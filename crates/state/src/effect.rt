// The effects of one operator in a state: a flag for each literal, set where a row with that effect fires. A step clears the atoms
// that are deleted and then sets those that are added. Only flags of the operator's effects are touched, so a step takes the time of
// its rows, however many atoms there are.
ghost use Rattle.std.specs.Prelude.{◌≡◌, true, cond};
ghost use Rattle.definitions.specs.Literal.{positive};
ghost use Rattle.definitions.specs.Step.{result as result_of};
ghost use Rattle.task.specs.Walk.{block_parses, operator_in};
ghost use Rattle.state.specs.Flags.{flag_fired, make_true, changed, unflagged};
ghost use Rattle.state.specs.Post.{Applies};

use literal::Literal;
use task::rows::{Row, Rows};

// Flags the effects of the rows of a block that fire in a state. The state stays as it is, so each row fires by the state before the step.
fn flag_fired(block: &[u16], state: &[u8], flags: &mut [u8])
    requires { block_parses block.now ≡ true }
    ensures { flags.new ≡ flag_fired state.now (operator_in block.now).rows flags.old }
{
    for Row { effect, conditions } in Rows::of(block) {
        let fires = literal::all_true(state, conditions);
        literal::flags::mark_if(fires, flags, literal::wide(effect));
    }
}

// The byte of the literal's atom where the literal is true.
fn truth(l: Literal) -> u8
    ensures { result ≡ cond (positive l.code) 1 0 }
{
    u8::from(l.is_positive())
}

// Makes a literal true, if `flagged`.
fn make_true(flagged: bool, state: &mut [u8], l: Literal)
    ensures { state.new ≡ make_true flagged state.old l.code }
{
    if flagged {
        literal::flags::put(state, l.atom(), truth(l));
    }
}

// Makes the flagged effects of a block true, those of the adds if `adds`, those of the deletes if not, and clears their flags.
fn change(block: &[u16], flags: &mut [u8], adds: bool, state: &mut [u8])
    requires { block_parses block.now ≡ true }
    ensures { (state.new ≡ changed adds (operator_in block.now).rows flags.old state.old)
        × (flags.new ≡ unflagged adds (operator_in block.now).rows flags.old) }
{
    for row in Rows::of(block) {
        let effect = Literal { code: row.effect };
        if effect.has_sign(adds) {
            let flagged = literal::flags::has(flags, effect.index());
            make_true(flagged, state, effect);
            literal::flags::put(flags, effect.index(), 0);
        }
    }
}

// Makes the effects of the rows of a block that fire true: first the deletes, then the adds. The flags are all zero before and after.
pub fn apply(block: &[u16], state: &mut [u8], flags: &mut [u8])
    requires { Applies block.now state.old flags.old }
    ensures { (state.new ≡ result_of state.old (operator_in block.now))
        × (flags.new ≡ flags.old) }
{
    flag_fired(block, state, flags);
    change(block, flags, task::block::DELETES, state);
    change(block, flags, task::block::ADDS, state);
}
