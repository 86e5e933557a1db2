//! Record files as a shelf of reels.
use catalog::SumVerdict;
use console::plain;
use file_medium::FileMedium;
use rdump_list::{ListProgress, ListSystem, MarkLimit, ReelPath, ShownMedium, open_plain};
use restore::{OpenFailed, Shelf};
use std::io::{self, Write};

/// Record files at these paths. Its contracts do not say which bytes the files contain.
#[derive(Drop)]
pub(crate) struct FileShelf<'a, R: ListSystem, T: Write + Drop> {
    rt: &'a R,
    paths: &'a [ReelPath],
    progress: Option<ListProgress<'a, R, T>>,
    fault: Option<io::Error>,
}

impl<'a, R: ListSystem, T: Write + Drop> FileShelf<'a, R, T> {
    /// `terminal` shows how far the files are read, if there is one.
    pub(crate) fn new(rt: &'a R, paths: &'a [ReelPath], terminal: Option<T>) -> Self {
        FileShelf {
            rt,
            paths,
            progress: ListProgress::at(rt, terminal),
            fault: None,
        }
    }

    /// Returns the error of the last file that could not be opened.
    pub(crate) fn fault(&self) -> Option<io::Error> {
        self.fault
    }

    pub(crate) fn clear(&mut self) {
        if let Some(progress) = &mut self.progress {
            progress.clear();
        }
    }
}

impl<'a, R: ListSystem, T: Write + Drop> Shelf for FileShelf<'a, R, T> {
    type Reel = ShownMedium<'a, MarkLimit, R, T>;

    ghost holds = { λ _ _. ⊥ };

    fn count(&self) -> usize {
        self.paths.len()
    }

    fn open(&mut self, number: usize) -> Result<ShownMedium<'a, MarkLimit, R, T>, OpenFailed> {
        let Some(path) = self.paths.get(number) else {
            return Err(OpenFailed);
        };
        match open_plain(self.rt, path.path.as_str()) {
            Ok(file) => {
                let mut progress = self.progress.take();
                if let Some(progress) = &mut progress {
                    progress.begin_reel();
                }
                Ok(ShownMedium {
                    medium: MarkLimit::new(FileMedium::new(file)),
                    progress,
                })
            }
            Err(error) => {
                self.fault = Some(error);
                Err(OpenFailed)
            }
        }
    }

    fn close(&mut self, reel: ShownMedium<'a, MarkLimit, R, T>) {
        let ShownMedium { progress, .. } = reel;
        if let Some(progress) = progress {
            self.progress = Some(progress);
        }
    }

    /// Prints on standard error which reel is set aside, and why.
    fn set_aside(&mut self, number: usize, verdict: SumVerdict) {
        self.clear();
        if let Some(path) = self.paths.get(number) {
            let (path, words) = (plain(path.path.as_str()), verdict.words());
            let _ = eprintln!(self.rt; "rdump: {path}: {words}: it is set aside");
        }
    }
}
