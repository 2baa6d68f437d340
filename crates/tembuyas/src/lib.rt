// The C interface: numbers and byte slices. include/tembuyas.h declares it.
#![tactic(auto)]

ghost use Rattle.std.specs.Prelude.{◌≡◌, ◌/◌, ◌%◌, ◌^◌, length};
ghost use Rattle.writing.specs.Writing.{head_writing_refusal, head_writing_out, point_writing_answer, point_writing_out};
ghost use Rattle.book.specs.Settling.{settling_refusal, settling_result};

// What the index of an answer is counted in: the bits above those of the refusal.
const INDEX_UNIT: u64 = 4_294_967_296;

// Settles a whole book into 64 result bytes.
#[unsafe(no_mangle)]
pub extern "C" fn tembuyas_settle_book(book: &[u8], res: &mut [u8]) -> u32
    ensures value { result ≡ settling_refusal book.now (length res.old) }
    ensures res_after { res.new ≡ settling_result book.now res.old }
{
    refusals::number_told(book::settling::settle(book, res))
}

// Writes a head with its calendar.
#[unsafe(no_mangle)]
pub extern "C" fn tembuyas_write_head(head: &[u8], calendar: &[u8], out: &mut [u8]) -> u32
    ensures value { result ≡ head_writing_refusal head.now calendar.now (length out.old) }
    ensures out_after { out.new ≡ head_writing_out head.now calendar.now out.old }
{
    refusals::number_told(writing::write_head(head, calendar, out))
}

// Writes a point's field. The low 32 bits of the answer are the refusal, the high 32 bits the index.
#[unsafe(no_mangle)]
pub extern "C" fn tembuyas_write_point(tag: u8, value: &[u8], out: &mut [u8]) -> u64
    ensures refusal { result % 2 ^ 32 ≡ (point_writing_answer tag value.now (length out.old)).number }
    ensures index { result / 2 ^ 32 ≡ (point_writing_answer tag value.now (length out.old)).index }
    ensures lent { out.new ≡ point_writing_out tag value.now out.old }
{
    let answer = writing::write_point(tag, value, out);
    u64::from(refusals::index_told(answer)) * INDEX_UNIT + u64::from(refusals::number_told(answer))
}
