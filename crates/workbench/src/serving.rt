//! The program on its input: an image and a log, and then a script.
ghost use Rattle.std.specs.Prelude.{◌≡◌, ◌+◌, ◌≤◌, ◌++◌, IfErr, List, MatchResult, length};
ghost use Rattle.wb_io.specs.Calls.{Call, Moment, Reads, Writes, bytes_moved};
ghost use Rattle.workbench.specs.Runs.{max_reads};
ghost use Rattle.workbench.specs.Serve.{IsFrontFault, IsJudgement, Makes, ReadsAll, Serves, ServesInOrder, image_of, log_of};
ghost use Rattle.timeline.specs.Sizes.{AreSizes};

use crate::script::{MAX_READS, run_with};
use input_log::{Log, read_log};
use r3k_asm::assemble;
use r3k_image::{Image, raw_rom, read_image};
use std::alloc::Global;
use wb_io::{Order, PIECE_BYTES, Sink, Source};
use wb_options::{Kind, Options, RunFault};

/// Reads the bytes of image and log, as many as the options say, makes both, and runs the script that follows on a machine with
/// them. All reads together are at most 2^20.
///
/// Input that ends within image or log is a read fault. Both are read before they are judged: the image first, then the log,
/// and last whether the image fits the machine. Nothing is written until they are found good.
pub fn serve<const PAGES: u32, const SPAN: u32, R: Source, W: Sink>(
    alloc: Global,
    options: Options,
    reader: &mut R,
    writer: &mut W,
) -> Result<(), RunFault>
    requires sizes { AreSizes PAGES SPAN }
    ensures { (reads : List Call) × (writes : List Call)
        × Reads (R.reads reader.old) (R.reads reader.new) (R.left reader.old) (R.left reader.new) reads
        × Writes (W.writes writer.old) (W.writes writer.new) (W.written writer.old) (W.written writer.new) writes
        × (length reads ≤ max_reads)
        × Serves PAGES (record { kind = options.kind; size = options.size; log_size = options.log_size }) result reads writes }
{
    let mut order = Order::new();
    serve_in_order::<PAGES, SPAN, R, W>(alloc, options, reader, writer, &mut order)
}

/// The same. Before each read of the script all complete lines that were read are answered, and the replies are written whole.
/// `order` sees each read of the script.
pub(crate) fn serve_in_order<const PAGES: u32, const SPAN: u32, R: Source, W: Sink>(
    alloc: Global,
    options: Options,
    reader: &mut R,
    writer: &mut W,
    order: &mut Order<R, W>,
) -> Result<(), RunFault>
    requires sizes { AreSizes PAGES SPAN }
    ensures { (reads : List Call) × (writes : List Call)
        × Reads (R.reads reader.old) (R.reads reader.new) (R.left reader.old) (R.left reader.new) reads
        × Writes (W.writes writer.old) (W.writes writer.new) (W.written writer.old) (W.written writer.new) writes
        × (length reads ≤ max_reads)
        × Serves PAGES (record { kind = options.kind; size = options.size; log_size = options.log_size }) result reads writes
        × (moments : List Moment) × (order.new ≡ order.old ++ moments)
        × ServesInOrder PAGES (record { kind = options.kind; size = options.size; log_size = options.log_size }) result reads writes (record { reads = R.reads reader.old; writes = W.writes writer.old }) moments }
{
    let size = options.size as usize;
    let front = match read_front(alloc, size + options.log_size as usize, reader) {
        Err(fault) => return Err(fault),
        Ok(front) => front,
    };
    let (image, log) = front.bytes.split_at(size);
    let image = match image_of(alloc, options.kind, image) {
        Err(refusal) => return Err(refusal),
        Ok(image) => image,
    };
    let log = match log_of(alloc, log) {
        Err(fault) => return Err(fault),
        Ok(log) => log,
    };
    run_with::<PAGES, SPAN, R, W>(alloc, image, log, reader, writer, order, front.reads_left)
}

// The bytes before the script, and how many reads are left.
#[derive(Drop)]
struct Front {
    bytes: Vec<u8>,
    reads_left: u32,
}

// Reads `size` bytes, and no more.
fn read_front<R: Source>(alloc: Global, size: usize, reader: &mut R) -> Result<Front, RunFault>
    ensures { (reads : List Call)
        × Reads (R.reads reader.old) (R.reads reader.new) (R.left reader.old) (R.left reader.new) reads
        × (length reads ≤ max_reads)
        × MatchResult result
        (λ front. ReadsAll size reads × (front.bytes.items ≡ bytes_moved reads) × (front.reads_left + length reads ≡ max_reads))
        (IsFrontFault size reads) }
{
    let mut bytes = Vec::new(alloc);
    let mut piece = [0u8; PIECE_BYTES];
    let mut reads_left = MAX_READS;
    while bytes.len() < size {
        if reads_left == 0 {
            return Err(RunFault::ReadFault);
        }
        reads_left -= 1;
        let missing = size - bytes.len();
        let wanted = missing.min(PIECE_BYTES);
        let count = match reader.read(&mut piece[..wanted]) {
            Err(_) => return Err(RunFault::ReadFault),
            Ok(0) => return Err(RunFault::ReadFault),
            Ok(count) => count,
        };
        match bytes.extend_from_slice(&piece[..count]) {
            Err(_) => return Err(RunFault::Memory),
            Ok(()) => {}
        }
    }
    Ok(Front { bytes, reads_left })
}

// The image that bytes of a kind make.
fn image_of(alloc: Global, kind: Kind, bytes: &[u8]) -> Result<Image, RunFault>
    ensures made { Makes result (image_of kind bytes.now) }
    ensures judged { IfErr result IsJudgement }
{
    match kind {
        Kind::Rom => Ok(raw_rom(alloc, bytes)?),
        Kind::Image => Ok(read_image(alloc, bytes)?),
        Kind::Source => Ok(assemble(alloc, bytes)?),
    }
}

// The log that bytes spell. No bytes are the empty log.
fn log_of(alloc: Global, bytes: &[u8]) -> Result<Log, RunFault>
    ensures made { Makes result (log_of bytes.now) }
    ensures judged { IfErr result IsJudgement }
{
    if bytes.is_empty() {
        return Ok(Log::new(alloc));
    }
    Ok(read_log(alloc, bytes)?)
}
