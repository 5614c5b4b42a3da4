// The lines that set directions, and those by which the next case is lent others, or a row of another length.
use cases::Line;

// How many components of each kind there are.
const COUNT: usize = 720;

// How many a case can be lent: those and a zero.
const LENDABLE: usize = 721;

// The 720 directions.
#[derive(Clone, Copy)]
pub struct Directions {
    pub cos: [f32; COUNT],
    pub sin: [f32; COUNT],
}

impl Directions {
    // Directions with zeros.
    pub fn new() -> Directions {
        Directions {
            cos: [0.0; COUNT],
            sin: [0.0; COUNT],
        }
    }

    // Sets direction j, if there is one, by the patterns of its components.
    pub fn try_set(&mut self, j: u32, cos: u32, sin: u32) -> Option<()> {
        *self.cos.get_mut(j as usize)? = patterns::float_of(cos);
        *self.sin.get_mut(j as usize)? = patterns::float_of(sin);
        Some(())
    }
}

// What a case is lent: the first cosines and the first sines, and a row of a length.
#[derive(Clone, Copy)]
pub struct Lent {
    cos: [f32; LENDABLE],
    sin: [f32; LENDABLE],
    cosines: usize,
    sines: usize,
    pub entries: usize,
}

impl Lent {
    // The cosines.
    pub fn cos(&self) -> &[f32] {
        &self.cos[..self.cosines.min(LENDABLE)]
    }

    // The sines.
    pub fn sin(&self) -> &[f32] {
        &self.sin[..self.sines.min(LENDABLE)]
    }
}

// The place of a component among the cosines or the sines.
// Two places and no flag: neither stands for none.
#[derive(Clone, Copy)]
enum Place {
    Cosine(usize),
    Sine(usize),
}

// What waits for the next case.
#[derive(Clone, Copy)]
struct Waiting {
    // how many cosines and sines it is lent, if a `len` waits
    counts: Option<(usize, usize)>,
    // the component that another takes the place of, if a `bad` waits
    replaced: Option<(Place, f32)>,
    // how many entries the row has, if a `size` waits
    entries: Option<usize>,
}

impl Waiting {
    // Nothing.
    fn nothing() -> Waiting {
        Waiting {
            counts: None,
            replaced: None,
            entries: None,
        }
    }
}

// What the lines so far have set.
#[derive(Clone, Copy)]
pub struct Lending {
    pub directions: Directions,
    waiting: Waiting,
    // how many cosines and how many sines a case can be lent at most
    most: usize,
    // how many entries a row can have at most; none where no row is lent
    longest: Option<usize>,
}

impl Lending {
    // No line has come yet.
    pub fn new(most: usize, longest: Option<usize>) -> Lending {
        Lending {
            directions: Directions::new(),
            waiting: Waiting::nothing(),
            most,
            longest,
        }
    }

    // Takes a line that sets or lends something.
    pub fn take_line(&mut self, line: &Line) -> Option<()> {
        match (line.operation(), line.words()) {
            // dir j cos sin: sets direction j
            (b"dir", [j, cos, sin]) => self.directions.try_set(*j, *cos, *sin)?,

            // bad which j bits: the next case is lent this as cosine (0) or sine (1) j
            (b"bad", [which, j, bits]) => self.replace(*which, *j as usize, *bits)?,

            // len c s: the next case is lent the first c cosines and the first s sines
            (b"len", [c, s]) => self.cut(*c as usize, *s as usize)?,

            // size n: the next case is lent a row of n entries
            (b"size", [n]) => self.size(*n as usize)?,
            _ => return None,
        }
        Some(())
    }

    // Lends another component to the next case, unless one waits.
    fn replace(&mut self, which: u32, j: usize, bits: u32) -> Option<()> {
        let place = match which {
            0 => Place::Cosine(j),
            1 => Place::Sine(j),
            _ => return None,
        };
        if self.waiting.replaced.is_some() || j >= COUNT {
            return None;
        }
        self.waiting.replaced = Some((place, patterns::float_of(bits)));
        Some(())
    }

    // Lends only the first cosines and sines to the next case, unless other numbers wait.
    fn cut(&mut self, cosines: usize, sines: usize) -> Option<()> {
        if self.waiting.counts.is_some() || cosines > self.most || sines > self.most {
            return None;
        }
        self.waiting.counts = Some((cosines, sines));
        Some(())
    }

    // Lends a row of another length to the next case, unless one waits.
    fn size(&mut self, entries: usize) -> Option<()> {
        if self.waiting.entries.is_some() || entries > self.longest? {
            return None;
        }
        self.waiting.entries = Some(entries);
        Some(())
    }

    // What the next case is lent; after it nothing waits.
    pub fn lend(&mut self) -> Lent {
        let waiting = self.waiting;
        self.waiting = Waiting::nothing();
        let mut cos = [0.0; LENDABLE];
        let mut sin = [0.0; LENDABLE];
        cos[..COUNT].copy_from_slice(&self.directions.cos);
        sin[..COUNT].copy_from_slice(&self.directions.sin);
        match waiting.replaced {
            Some((Place::Cosine(j), component)) if j < COUNT => cos[j] = component,
            Some((Place::Sine(j), component)) if j < COUNT => sin[j] = component,
            _ => {}
        }
        let (cosines, sines) = waiting.counts.unwrap_or((COUNT, COUNT));
        Lent {
            cos,
            sin,
            cosines,
            sines,
            entries: waiting.entries.unwrap_or(COUNT),
        }
    }

    // Answers a line that still waits for a case at the end.
    pub fn finish(&self, rt: &impl Print) {
        let waiting = &self.waiting;
        if waiting.counts.is_some() || waiting.replaced.is_some() || waiting.entries.is_some() {
            case_lines::answers::malformed(rt);
        }
    }
}
