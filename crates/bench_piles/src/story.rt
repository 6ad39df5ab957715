// What the task does on a block: what it lays, and where the power goes. The nodes are those of the other bench: each is laid and
// printed as it is made, and entries and contents are two types, so that no table could hold them for both.
use crate::task::Task;
use bench_parts::pieces::{ROOT, TOP, TRACK, content, entry};
use flash::interface::Flash;
use kinds::FileKind;

// A cut of the power in the step after so many, with a fault.
#[derive(Clone, Copy)]
pub(crate) struct Cut {
    pub(crate) what: &'static str,
    pub(crate) steps: usize,
    pub(crate) fault: u8,
}

// A directory, a file in it, and what the file holds.
fn fill<F: Flash + Drop>(task: &mut Task<'_, F>) {
    let dir = FileKind::Directory;
    let file = FileKind::File;
    task.erase();
    task.lay_marker();
    task.lay_node("directory 2", &content(TOP, 1, dir, 0, b""));
    task.lay_node("its name, /top", &entry(ROOT, TOP, dir, b"top"));
    task.lay_node("file 3", &content(TRACK, 1, file, 0, b""));
    let name = entry(TOP, TRACK, file, b"track-7");
    task.lay_node("its name, /top/track-7", &name);
    let text = b"net GND 100,200 to 100,900\n";
    task.lay_node("27 bytes of it", &content(TRACK, 2, file, 0, text));
    task.sync();
}

// More of the file.
fn more<F: Flash + Drop>(task: &mut Task<'_, F>) {
    let text = b"net VCC 300,200 to 300,900\n";
    let content = content(TRACK, 3, FileKind::File, 27, text);
    task.lay_node("27 bytes more", &content);
}

// More of the file, and the power is cut while that settles.
fn cut_more<F: Flash + Drop>(task: &mut Task<'_, F>, cut: Cut) {
    task.arm(cut.what, cut.steps, cut.fault);
    more(task);
    task.sync();
    task.erase();
    task.mark();
}

// More of the file, as it can be read before it settles.
fn hold_more<F: Flash + Drop>(task: &mut Task<'_, F>) {
    more(task);
    task.survey();
}

// The task on any flash, with a cut in it, or with a restart while bytes are held.
pub(crate) fn perform<F: Flash + Drop>(task: &mut Task<'_, F>, title: &str, cut: Option<Cut>) {
    task.begin(title);
    fill(task);
    match cut {
        Some(cut) => cut_more(task, cut),
        None => hold_more(task),
    }
    task.restart();
    task.mark();
    task.survey();
}
