// Small sources, their programs and their refusals, evaluated on the definitions themselves.

ghost use Rattle.std.specs.Prelude.{codes};
ghost use Rattle.sj_names.specs.declared.failure.FailureKind.TheVariants as fault;
ghost use Rattle.sj_names.specs.definitions.Failures.{failure_at};
ghost use Rattle.sj_accept.specs.declared.refusal.Refusal.TheVariants as refusal;
ghost use Rattle.sj_accept.specs.definitions.Accepted.{IsSourceOf};
ghost use Rattle.sj_accept.specs.definitions.Refusals.{IsRefusedFor};
ghost use Rattle.sj_accept.specs.SmallPrograms.{empty, blink, looping, rendezvous, many_levels, many_operators};

use crate::laws::sources_are_one_tree;
use sj_grammar::{
    prefixes_are_what_can_be_read, sentences_are_what_is_read_whole, walks_tell_the_first_bad_token,
};

/// The place of a bad byte, of a bad number, of an open comment, of the end of a source that goes no further, and
/// of a token that can't stand where it does.
pub fn small_refusals()
    ensures bad_byte { IsRefusedFor (codes "system @") (refusal.BadByte 7) }
    ensures bad_number { IsRefusedFor (codes "system 08") (refusal.BadNumber 7) }
    ensures open_comment { IsRefusedFor (codes "system /* */ /*") (refusal.OpenComment 13) }
    ensures at_end { IsRefusedFor (codes "system ") (refusal.Syntax 7) }
    ensures at_token { IsRefusedFor (codes "system ; {") (refusal.Syntax 7) }
{
    prefixes_are_what_can_be_read();
    sentences_are_what_is_read_whole();
}

/// The programs of accepted sources, whose terms have the places of their statements.
pub fn small_sources()
    ensures empty { IsSourceOf (codes "system{interface{}{}}") empty }
    ensures blink { IsSourceOf (codes "system{interface{output signal A;}{emit A;pause;emit A;}}")
        blink }
    ensures looping { IsSourceOf (codes "system{interface{output signal A;output signal B;}{while(true){emit A;pause;emit B;}}}") looping }
    ensures rendezvous { IsSourceOf (codes "system{interface{output signal D;output signal B;int channel C;}{send C(5); emit D;}><{receive C; emit B;}}") rendezvous }
{}

/// The places of a level and of an operator that are one too many.
pub fn deep_sources()
    ensures level { IsRefusedFor many_levels (refusal.TooDeep 81) }
    ensures operator { IsRefusedFor many_operators (refusal.TooDeep 282) }
{
    prefixes_are_what_can_be_read();
    walks_tell_the_first_bad_token();
}

/// Programs of the grammar with a name that isn't declared, and with two signals of one name.
pub fn misnamed_sources()
    ensures no_such_signal { IsRefusedFor (codes "system{interface{}{emit A;}}")
        (refusal.Names (failure_at fault.Unknown 24)) }
    ensures one_name_twice { IsRefusedFor (codes "system{interface{output signal A;output signal A;}{}}") (refusal.Names (failure_at fault.Twice 47)) }
{
    walks_tell_the_first_bad_token();
}

/// Programs of the grammar with an input, with a form that isn't built, and with a loop whose block ends at once.
pub fn unaccepted_sources()
    ensures an_input { IsRefusedFor (codes "system{interface{input signal A;}{}}") refusal.Later }
    ensures a_halt { IsRefusedFor (codes "system{interface{}{halt;}}") refusal.Later }
    ensures endless_tick { IsRefusedFor (codes "system{interface{}{while(true){}}}") refusal.Later }
{
    walks_tell_the_first_bad_token();
    sources_are_one_tree();
}
