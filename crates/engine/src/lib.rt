// The calls for a host in C. Each answers one number, 256 times a value plus a refusal number.
#![tactic(auto)]

ghost use Rattle.std.specs.Prelude.{◌≡◌};
ghost use Rattle.begin.specs.Begin.{begin_of};
ghost use Rattle.question.specs.Question.{yes_or_no, question_of};
ghost use Rattle.reply.specs.Reply.{reply_of, reply_left, length_of, given_state};
ghost use Rattle.report.specs.Report.{report_of, packed};
ghost use Rattle.tables.specs.Check.{check_of};
ghost use Rattle.take.specs.Take.{take_of};
ghost use Rattle.numbers.specs.Answer.{buffer_after, answer_of, no_value};
ghost use Rattle.negotiation.specs.Layout.{state_bytes};
ghost use Rattle.standing.specs.Buffers.{scratch_left};

// The check of house tables: 0 where they are accepted, or a refusal number.
#[unsafe(no_mangle)]
pub extern "C" fn lavutremo_check(tables: &[u8]) -> u64
    ensures { result ≡ check_of tables.now }
{
    tables::check(tables)
}

// A fresh negotiation for the tables, the other end and the wanted role goes into its buffer: 0, or a refusal number, and then
// nothing changes.
#[unsafe(no_mangle)]
pub extern "C" fn lavutremo_begin(
    tables: &[u8],
    negotiation: &mut [u8],
    other: u16,
    entity: u16,
    name: u16,
) -> u64
    ensures answered { result ≡ answer_of no_value (begin_of tables.now negotiation.old other entity name) }
    ensures left { negotiation.new ≡ buffer_after state_bytes negotiation.old
        (begin_of tables.now negotiation.old other entity name) }
{
    begin::begin(tables, negotiation, other, entity, name)
}

// The negotiation goes on by a message of the other end, and the scratch becomes zero: 0, or a refusal number, and then nothing changes.
#[unsafe(no_mangle)]
pub extern "C" fn lavutremo_take(
    tables: &[u8],
    negotiation: &mut [u8],
    message: &[u8],
    scratch: &mut [u8],
) -> u64
    ensures answered { result ≡ answer_of no_value (take_of tables.now negotiation.old message.now scratch.old) }
    ensures left { negotiation.new ≡ buffer_after state_bytes negotiation.old
        (take_of tables.now negotiation.old message.now scratch.old) }
    ensures cleared { scratch.new ≡ scratch_left scratch.old
        (take_of tables.now negotiation.old message.now scratch.old) }
{
    take::take(tables, negotiation, message, scratch)
}

// The negotiation goes on by our reply, which is written into its buffer, and the scratch becomes zero: 256 times the reply's length, or a refusal
// number, and then nothing changes.
#[unsafe(no_mangle)]
pub extern "C" fn lavutremo_reply(
    tables: &[u8],
    negotiation: &mut [u8],
    reply: &mut [u8],
    scratch: &mut [u8],
) -> u64
    ensures answered { result ≡ answer_of length_of (reply_of tables.now negotiation.old reply.old scratch.old) }
    ensures left { negotiation.new ≡ buffer_after given_state negotiation.old
        (reply_of tables.now negotiation.old reply.old scratch.old) }
    ensures written { reply.new ≡ reply_left reply.old
        (reply_of tables.now negotiation.old reply.old scratch.old) }
    ensures cleared { scratch.new ≡ scratch_left scratch.old
        (reply_of tables.now negotiation.old reply.old scratch.old) }
{
    reply::reply(tables, negotiation, reply, scratch)
}

// The report on a node of a negotiation: 256 times its numbers in one, or a refusal number. Nothing changes.
#[unsafe(no_mangle)]
pub extern "C" fn lavutremo_report(tables: &[u8], negotiation: &[u8], node: u8) -> u64
    ensures { result ≡ answer_of packed (report_of tables.now negotiation.now node) }
{
    report::report(tables, negotiation, node)
}

// Whether f is from e in RT0 over the lent credentials: 256 for yes, 0 for no, or a refusal number.
#[unsafe(no_mangle)]
pub extern "C" fn lavutremo_question(credentials: &[u8], f: &[u8], e: &[u8]) -> u64
    ensures { result ≡ answer_of yes_or_no (question_of credentials.now f.now e.now) }
{
    question::question(credentials, f, e)
}
