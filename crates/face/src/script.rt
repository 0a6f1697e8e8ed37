// A script that is read in chunks, in constant memory: what its lines say is done, what that has to tell is written.
use crate::held::Held;
use crate::page::Page;
use line::Line;
use std::io::{Read, Result, Stdin, Stdout};

// What is done with a script.
pub trait Task {
    // A line was read; its number counts blank ones too.
    fn line(&mut self, line: Line, number: u64, page: &mut Page);

    // There are so many lines and no more.
    fn end(&mut self, lines: u64, page: &mut Page);
}

#[derive(Drop)]
pub struct Script<T> {
    task: T,
    lines: u64,
    held: Held,
    page: Page,
    output: Stdout,
    // The input ended, or a write failed, which is not told: the status stays 0.
    over: bool,
}

impl<T: Task + Drop> Script<T> {
    pub(crate) fn new(task: T, output: Stdout) -> Script<T> {
        Script {
            task,
            lines: 0,
            held: Held::new(),
            page: Page::new(),
            output,
            over: false,
        }
    }

    fn flush(&mut self) {
        self.over = self.page.flush(&mut self.output).is_err();
    }

    // The line that is held is complete. The page is written where little is left for more.
    fn close(&mut self) {
        let line = self.held.take();
        self.lines = self.lines.saturating_add(1);
        self.task.line(line, self.lines, &mut self.page);
        if self.page.is_nearly_full() {
            self.flush();
        }
    }

    // A newline completes the line before it.
    fn feed(&mut self, chunk: &[u8]) {
        for (newlines, bytes) in chunk.split(|&b| b == b'\n').enumerate() {
            if newlines != 0 {
                self.close();
                if self.over {
                    return;
                }
            }
            self.held.push(bytes);
        }
    }

    // A last line may lack its newline.
    fn finish(&mut self) {
        self.close();
        self.task.end(self.lines, &mut self.page);
        self.flush();
        self.over = true;
    }

    // Reads once, and answers what came. Where that fails, what there is to say is said before the error.
    fn turn(&mut self, input: &mut Stdin) -> Result<()> {
        let mut chunk = [0; 4096];
        match input.read(&mut chunk) {
            Err(error) => {
                self.finish();
                return Err(error);
            }
            Ok(0) => self.finish(),
            Ok(n) => {
                self.feed(&chunk[..n]);
                if !self.over {
                    self.flush();
                }
            }
        }
        Ok(())
    }

    // A proved loop has to end, and nothing says that the input does. So the loop counts its turns, up to a number
    // that no run reaches: a loop without end would need `Wait`, a word more than HANDLES has.
    pub(crate) fn run(mut self, input: &mut Stdin) -> Result<()> {
        for _ in 0..u64::MAX {
            self.turn(input)?;
            if self.over {
                return Ok(());
            }
        }
        Ok(())
    }
}
