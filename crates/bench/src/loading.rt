// Loading texts.
use crate::meter::Meter;
use crate::texts::filled;
use document::fault::LoadFault;
use study::study::Study;

// Loads a text so many times.
fn load_again(study: &mut Study, text: &[u8], times: u16) -> Result<(), LoadFault> {
    for _ in 0..times {
        study.load(text)?;
    }
    Ok(())
}

fn load(meter: &mut Meter, size: usize, times: u16) -> anyhow::Result<()> {
    let text = filled(meter.heap(), size)?;
    let mut study = Study::new(&mut [], &mut []);
    let loaded = meter.piece(|| load_again(&mut study, text.as_bytes(), times))?;
    meter.line(text.len(), loaded.map_or("refused", |()| "loaded"))?;
    Ok(())
}

pub fn series(meter: &mut Meter) -> anyhow::Result<()> {
    meter.series("loading: bytes, a thousand times")?;
    let times = if meter.is_timed() { 1000 } else { 1 };
    for size in [4096, 8192, 16384] {
        load(meter, size, times)?;
    }
    Ok(())
}
